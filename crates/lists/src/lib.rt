// Laws about lists, sums and parts put back, which more than one crate cites. There is no code here.
#![tactic(auto)]
