// Names, typings and traces by their bytes: a text is read exactly when it is spelt so; this crate has theorems and no functions.
#![tactic(auto)]
