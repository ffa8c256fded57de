// What becomes of orders: the plain ledger's waiting, resting, traded and deleted orders, and the
// claim about lists of calls. It has no code.
#![tactic(auto)]
