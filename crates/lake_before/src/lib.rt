// No code: the translation as it was before 02, §4, and that what was accepted then is accepted now. See specs/.
#![tactic(auto)]
