// What a member is, when it is refused, and what follows from that alone: all of it stands in specs/.
#![tactic(auto)]
