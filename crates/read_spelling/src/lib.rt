// No code: which bytes spell which token, and that the token function of `read_tokens` is exactly that. See specs/.
#![tactic(auto)]
