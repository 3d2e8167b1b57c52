// A new book: no pool, and everything empty or 0.
ghost use Rattle.std.specs.Prelude.{◌≡◌};
ghost use Rattle.book.specs.New.{new_book};

use crate::records::{Allowed, Book, Pools};

impl Book {
    pub fn new() -> Book
        ensures { result ≡ new_book }
    {
        let pools = Pools { rows: [None; 8] };
        let shares = [[0; 16]; 8];
        let claims = [[0; 8]; 16];
        let none = Allowed { rows: [[0; 8]; 16] };
        let allowances = [none; 16];
        let operators = [[false; 16]; 16];
        let deltas = [[0; 8]; 16];
        Book {
            pools,
            shares,
            claims,
            allowances,
            operators,
            deltas,
            mark: None,
            steps: 0,
        }
    }
}
