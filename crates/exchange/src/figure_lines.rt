// The worked figures, each computed by the code beside the answer that the rules give.
use crate::stop::Stop;
use figures::{Figure, example_curves, figures};

pub fn show(rt: &HostRuntime) -> Result<(), Stop> {
    let bank = example_curves()?;
    println!(rt; "Worked figures (curve 0 product, 1 sum, 2 product under fee 30)")?;
    for Figure { question, answer } in figures() {
        let computed = question.answer(&bank);
        print!(rt; "  {question} -> ")?;
        match computed {
            Some(computed) => print!(rt; "{computed}")?,
            None => print!(rt; "refused")?,
        }
        if computed == answer {
            println!(rt; ", as the rules say")?;
        } else {
            println!(rt; ", AGAINST THE RULES")?;
        }
    }
    Ok(())
}
