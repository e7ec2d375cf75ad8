// The findings, their levels and the verdicts. No code: specs/ says what the documents ask of a record and of a transaction.
#![tactic(auto)]
