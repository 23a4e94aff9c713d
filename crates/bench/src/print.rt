// What the program writes to standard output.
use calls::{Answer, Said};
use meaning::Refusal;
use std::io;

// no table, but why there is none
pub fn refused(rt: &impl Print, refusal: Refusal) -> io::Result<()> {
    println!(rt; "refused {}", refusals::number(refusal))
}

pub fn heading(rt: &impl Print) -> io::Result<()> {
    println!(rt; "point verdict steps held")
}

// a point's line
pub fn line(rt: &impl Print, point: usize, said: Said<Answer>) -> io::Result<()> {
    print!(rt; "{point} ")?;
    let spent = match said {
        Ok((Answer::Verdict(yes), spent)) => {
            rt.print(if yes { "yes" } else { "no" })?;
            spent
        }
        Ok((Answer::Number(bits), spent)) => {
            rt.print(bits.cast_signed())?;
            spent
        }
        Err(refused) => {
            print!(rt; "refused {}", refusals::number(refused.refusal))?;
            refused.spent
        }
    };
    println!(rt; " {} {}", spent.steps, spent.most)
}
