//! What a line asks for.

/// A run, with its numbers.
#[derive(Debug, Clone, Copy, PartialEq, Eq)]
pub enum Order {
    Beside {
        lanes: u32,
        snapshots: u32,
        commits: u32,
    },
    Pins {
        lanes: u32,
        times: u32,
    },
    Adds {
        threads: u32,
        times: u32,
    },
    Commits {
        lanes: u32,
        modules: u32,
        staged: u32,
        times: u32,
    },
    Unknown,
}

// The number that a word is, and 0 for any other word.
fn number(word: Option<&str>) -> u32 {
    match word {
        Some(word) => word.parse::<u32>().unwrap_or(0),
        None => 0,
    }
}

/// The run that a line asks for.
pub fn read_order(line: &str) -> Order {
    let mut words = line.split_whitespace();
    let name = words.next().unwrap_or("");
    let first = number(words.next());
    let second = number(words.next());
    let third = number(words.next());
    let last = number(words.next());
    match name {
        "beside" => Order::Beside {
            lanes: first,
            snapshots: second,
            commits: third,
        },
        "pins" => Order::Pins {
            lanes: first,
            times: second,
        },
        "adds" => Order::Adds {
            threads: first,
            times: second,
        },
        "commits" => Order::Commits {
            lanes: first,
            modules: second,
            staged: third,
            times: last,
        },
        _ => Order::Unknown,
    }
}
