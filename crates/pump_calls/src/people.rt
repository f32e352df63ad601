// Who calls: document 01's A, B and C, each with an account and a key; and as many agents as a scene wants. For `rounds` and the scenes.
use ids::{Account, Key};
use records::Caller;

fn signing(account: u64, key: Key) -> Caller {
    Caller {
        predecessor: Account(account),
        signer: Account(account),
        signer_key: key,
    }
}

pub fn a() -> Caller {
    signing(1, [b'A'; 32])
}

pub fn b() -> Caller {
    signing(2, [b'B'; 32])
}

pub fn c() -> Caller {
    signing(1, [b'C'; 32])
}

// No two numbers give the same key.
pub fn agent(n: u64) -> Caller {
    let mut key = [0; 32];
    key[..8].copy_from_slice(&n.to_be_bytes());
    signing(1, key)
}
