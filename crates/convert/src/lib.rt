// What a text in a page becomes in UTF-8, and back, when it is refused, and what follows from that alone (document 02, T-08): all of it stands in
// specs/.
#![tactic(auto)]
