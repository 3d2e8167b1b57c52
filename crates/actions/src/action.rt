// The calls that act on the vault's records and banks, in the order of the rulebook. Any numbers may stand in them.
#[derive(Clone, Copy)]
pub enum Action {
    Sync {
        c: u32,
    },
    Settle {
        who: u32,
        c: u32,
    },
    Take {
        who: u32,
        c: u32,
        to: u32,
        a: u32,
    },
    Pay {
        who: u32,
        c: u32,
        to: u32,
        a: u32,
    },
    Clear {
        who: u32,
        c: u32,
        a: u32,
    },
    Mint {
        who: u32,
        to: u32,
        c: u32,
        a: u32,
    },
    Burn {
        who: u32,
        from: u32,
        c: u32,
        a: u32,
    },
    Hand {
        caller: u32,
        from: u32,
        to: u32,
        c: u32,
        a: u32,
    },
    Allow {
        owner: u32,
        spender: u32,
        c: u32,
        a: u32,
    },
    Operator {
        owner: u32,
        spender: u32,
        flag: u32,
    },
}
