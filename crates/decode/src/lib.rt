// What an image's items are read as again, at the places that the loader keeps: definitions and laws, no code.
#![tactic(auto)]
