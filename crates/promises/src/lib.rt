// What the calls promise, held to what `calls` asks of them; a list of calls for each list of steps; and a run, computed. No code.
#![tactic(auto)]
