//! What devices hold, what each call makes of it, and when a device may fail. No function works here.
#![tactic(auto)]
