// Laws of the words that document 01 uses throughout, in proofs/: what the first of several tests gives, and
// bytes put at a place.
#![tactic(auto)]
