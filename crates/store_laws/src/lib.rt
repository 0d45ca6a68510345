// Laws of document 01's definitions: well-formedness as named facts, what an opening gives, that every call keeps a store
// well-formed, and what a refused call leaves. There is no code here; the crates above cite specs/.
#![tactic(auto)]
