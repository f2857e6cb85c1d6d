// A member's cells on other axes than its own, and that every leaf keeps its total (document 02, T-11): all of it stands in specs/.
#![tactic(auto)]
