// What transfers and faults print.
ghost use Rattle.std.specs.Prelude.{Some};
ghost use Rattle.tokens.specs.Texts.{transfer_text, token_fault_text};

use crate::bank::TokenFault;
use crate::transfer::Transfer;
use std::fmt;

impl fmt::Display for Transfer {
    ghost output = { λ t. Some (transfer_text t) };

    fn fmt<W: fmt::Write>(&self, f: &mut fmt::Formatter<W>) -> fmt::Result {
        write!(
            f,
            "{} of currency {} from {} to {}",
            self.amount, self.currency, self.from, self.to
        )
    }
}

impl fmt::Display for TokenFault {
    ghost output = { λ fault. Some (token_fault_text fault) };

    fn fmt<W: fmt::Write>(&self, f: &mut fmt::Formatter<W>) -> fmt::Result {
        f.write_str(match self {
            TokenFault::UnknownCurrency => "no such currency",
            TokenFault::UnknownAccount => "no such account",
            TokenFault::SameAccount => "payer and payee are one account",
            TokenFault::NoAmount => "an amount of 0",
            TokenFault::Short => "there is not enough to take",
        })
    }
}
