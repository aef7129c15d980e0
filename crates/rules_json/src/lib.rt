// RFC 8259: what a text in JSON is, and what it says. Nothing runs here. specs/Grammar has the rules
// as the paper has them, specs/Utf8 the octets of RFC 3629, and specs/Reader a reader that takes
// exactly the texts of the rules.
#![tactic(auto)]
