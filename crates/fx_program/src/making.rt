ghost use Rattle.std.specs.Prelude.{◌≡◌, ◌++◌, OnErr, OnOk};
ghost use Rattle.fx_base.specs.Writing.{HoldsPart};
ghost use Rattle.fx_program.specs.Making.{made_factors, factors_line, made_levels, made_text, model_line, made_runs, size_line, step_text};

use fx_base::{Bytes, NoMemory, put, put_number};

/// Appends a program text of `n` steps, to try the program on: their numbers of factors, runs and
/// levels and what they ask for vary with the number of the step, and come again after 12 steps. Each
/// step is five lines.
///
/// # Errors
///
/// `NoMemory`; `out` then holds a prefix of the text after what it held.
pub fn make_text(n: u8, out: &mut Bytes) -> Result<(), NoMemory>
    ensures ok { OnOk result (out.new ≡ out.old ++ made_text n) }
    ensures err { OnErr result (HoldsPart out.old out.new (made_text n)) }
{
    for i in 0..n {
        put_step(out, i + 1)?;
    }
    Ok(())
}

/// Appends the five lines of the step of this number.
#[tactic(auto, using(fx_base::proofs::Held::nothing))]
fn put_step(out: &mut Bytes, k: u8) -> Result<(), NoMemory>
    ensures ok { OnOk result (out.new ≡ out.old ++ step_text k) }
    ensures err { OnErr result (HoldsPart out.old out.new (step_text k)) }
{
    put(out, b"proc factex nodes=20000;\n")?;
    put_factors(out, k)?;
    put_size(out, k)?;
    put(out, model_line(k))?;
    put(out, b"run;\n")
}

/// Appends the line of its factors.
#[tactic(auto, using(fx_base::proofs::Held::nothing))]
fn put_factors(out: &mut Bytes, k: u8) -> Result<(), NoMemory>
    ensures ok { OnOk result (out.new ≡ out.old ++ factors_line k) }
    ensures err { OnErr result (HoldsPart out.old out.new (factors_line k)) }
{
    put(out, b"factors X1-X")?;
    put_number(out, u128::from(factors_at(k)))?;
    put(out, b" / nlev=")?;
    put_number(out, u128::from(levels_at(k)))?;
    put(out, b";\n")
}

/// Appends the line of its size.
#[tactic(auto, using(fx_base::proofs::Held::nothing))]
fn put_size(out: &mut Bytes, k: u8) -> Result<(), NoMemory>
    ensures ok { OnOk result (out.new ≡ out.old ++ size_line k) }
    ensures err { OnErr result (HoldsPart out.old out.new (size_line k)) }
{
    put(out, b"size design=")?;
    put_number(out, u128::from(runs_at(k)))?;
    put(out, b";\n")
}

/// The number of levels of the step of this number.
fn levels_at(k: u8) -> u8
    ensures { result ≡ made_levels k }
{
    if k % 3 == 0 { 3 } else { 2 }
}

/// Its number of factors.
fn factors_at(k: u8) -> u8
    ensures { result ≡ made_factors k }
{
    5 + k % 6
}

/// Its number of runs.
fn runs_at(k: u8) -> u8
    ensures { result ≡ made_runs k }
{
    if k % 3 == 0 {
        27
    } else if k % 2 == 0 {
        16
    } else {
        32
    }
}

/// The line of its model.
fn model_line(k: u8) -> &'static [u8]
    ensures { result.now ≡ model_line k }
{
    if k % 4 == 0 {
        b"model resolution=max / minabs;\n"
    } else {
        b"model resolution=max;\n"
    }
}
