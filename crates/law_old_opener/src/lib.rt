// The opener of before C-17, as a definition, and laws: how it meets new files, and that old files open as they did. No code.

#![tactic(auto)]
