ghost use Rattle.std.specs.Prelude.{◌≡◌};
ghost use Rattle.send_rules.specs.Policies.{plan_of};

/// How an operation uses the cache and the network: urql's request policies.
#[derive(Clone, Copy, Debug, Drop, PartialEq, Eq)]
pub enum Policy {
    /// What the cache has, and a fetch for what it lacks.
    CacheFirst,
    /// What the cache has, and never a fetch.
    CacheOnly,
    /// Always a fetch, and never what the cache has.
    NetworkOnly,
    /// What the cache has, and always a fetch.
    CacheAndNetwork,
}

/// What a reading of the cache found.
#[derive(Clone, Copy, Debug, Drop, PartialEq, Eq)]
pub enum ReadingKind {
    /// Everything that was asked for.
    Hit,
    /// All but some fields that may be null.
    Partial,
    /// Nothing that can be shown.
    Miss,
}

/// What is done for one operation after its reading.
#[derive(Clone, Copy, Debug, Drop, PartialEq, Eq)]
pub struct Plan {
    /// The listener is told the reading. A miss is told as data that is null.
    pub tell: bool,
    /// A fetch is sent.
    pub send: bool,
}

/// The policy table.
pub fn decide(policy: Policy, reading: ReadingKind) -> Plan
    ensures { result ≡ plan_of policy reading }
{
    let complete = matches!(reading, ReadingKind::Hit);
    let readable = !matches!(reading, ReadingKind::Miss);
    match policy {
        Policy::CacheFirst => Plan {
            tell: readable,
            send: !complete,
        },
        Policy::CacheOnly => Plan {
            tell: true,
            send: false,
        },
        Policy::NetworkOnly => Plan {
            tell: false,
            send: true,
        },
        Policy::CacheAndNetwork => Plan {
            tell: readable,
            send: true,
        },
    }
}
