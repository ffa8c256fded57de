// The rules of cash, values, sends, liquidation and weights, over what they read. It has no code.
#![tactic(auto)]
