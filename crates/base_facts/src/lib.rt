// Laws on bools, options and numbers that every room uses, each said once: see specs/.
#![tactic(auto)]
