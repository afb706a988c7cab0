// Laws of whole scripts: the lines have room, no window gets a tick, and what is taken is a leading part. No code.
#![tactic(auto)]
