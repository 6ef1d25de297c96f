// The worked cases of document 01 and short histories, proved from the rules by computation: see specs/. There is no code here.
#![tactic(auto)]
