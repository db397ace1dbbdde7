ghost use Rattle.std.specs.Prelude.{◌≤◌, ◌<◌, ◌*◌, ◌^◌};

/// The five words of a storm. Its clients are numbered from 1 on, and so are the transactions of each. There are at most
/// 50,000 transactions.
#[derive(Clone, Copy, Debug)]
pub struct Plan {
    /// The sites, from 1 to 8.
    pub sites: u8,
    /// The partitions of each site, from 1 to 16.
    pub parts: u8,
    /// The clients, from 1 to 64.
    pub clients: u8,
    /// The transactions of each client, from 1 to 10,000.
    pub txns: u32,
    /// What the load is made from, below 2^48.
    pub number: u64,
    ghost least_sites: { 1 ≤ sites },
    ghost most_sites: { sites ≤ 8 },
    ghost least_parts: { 1 ≤ parts },
    ghost most_parts: { parts ≤ 16 },
    ghost least_clients: { 1 ≤ clients },
    ghost most_clients: { clients ≤ 64 },
    ghost least_txns: { 1 ≤ txns },
    ghost most_txns: { txns ≤ 10000 },
    ghost most_of_all: { clients * txns ≤ 50000 },
    ghost most_number: { number < 2 ^ 48 },
}
