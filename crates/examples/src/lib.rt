// Examples of document 01, and of each refusal, by computation in the logic: all of it stands in specs/.
#![tactic(auto)]
