// The small screens marked * in document 01: specs/Screens.antt has the table, proofs/Screens.antt the theorem. proofs/Runs.antt
// speaks of runs of functions that make calls, Called.antt and Linked.antt say which functions, Bars.antt has two runs computed.
// proofs/Icons.antt speaks of icons as sources, proofs/Cheats.antt of builds that no contract lets pass.
#![tactic(auto)]
