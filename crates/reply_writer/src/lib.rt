// The replies that the agent writes into a lent buffer.
#![tactic(auto)]

pub mod writer; // writer.rt: replies of one status, and the bodies of kinds 3, 4 and 9
