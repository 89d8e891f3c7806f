// What reducing a table comes to, as definitions: the answer, and what the marks and the list hold afterwards.
#![tactic(auto)]

use answers::Refusal;
