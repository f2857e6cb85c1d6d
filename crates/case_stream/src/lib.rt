#![tactic(auto)]

// What compressed case data means, and the theorem that cuts and rooms make no difference (document 02, T-05): all of it stands in specs/.
