// What is proved, demand by demand (proofs/Main.antt), and the rows of document 01's proved table (proofs/Table.antt): no code.
#![tactic(auto)]
