ghost use Rattle.std.specs.Prelude.{◌≡◌, ◌<◌, ◌≤◌, ◌*◌, ◌++◌, ◌∷◌, [], length, map, take, drop, decimal, All, IfOk, OnOk};
ghost use Rattle.std.specs.List.{flat_map};
ghost use Rattle.instance_text.specs.Spelling.{request_line, strip_line, twin_token, table_lines, spelling};
ghost use Rattle.seq_io.specs.Line.{spelled_line};
ghost use Rattle.seq_io.specs.Token.{bytes_of};
ghost use Rattle.instance_text.specs.Text.{IsStripInText, IsText};

use manoeuvre::{MAX_DIRECTED, Table};
use seq_io::{Token, put_line, put_number_line};
use std::alloc::{AllocError, Global};
use strip_model::{Instance, Request, Strip};

/// The text of an instance: one blank between tokens, LF after each line, no empty lines and no comments. The windows must
/// end by `MAX_WINDOW_END`, since otherwise there is no text of the instance.
pub fn write(alloc: Global, instance: &Instance) -> Result<Vec<u8>, AllocError>
    requires { All IsStripInText instance.now.strips }
    ensures spelling { IfOk result (λ text. text.items ≡ spelling instance.now) }
    ensures text { IfOk result (λ text. IsText text.items instance.now) }
{
    let requests = instance.requests();
    let strips = instance.strips();
    let mut text = Vec::new(alloc);
    put_count(&mut text, "orbit", 1)?;
    put_count(&mut text, "requests", requests.len())?;
    put_requests(&mut text, requests)?;
    put_count(&mut text, "strips", strips.len())?;
    put_strips(&mut text, strips)?;
    put_line(&mut text, &[Token::Word("manoeuvres")])?;
    put_table(&mut text, instance.table())?;
    put_line(&mut text, &[Token::Word("end")])?;
    Ok(text)
}

// A line of a word and a number.
fn put_count(text: &mut Vec<u8>, word: &'static str, count: usize) -> Result<(), AllocError>
    ensures { OnOk result (text.new.items ≡ text.old.items ++ spelled_line (word.now ∷ decimal count ∷ [])) }
{
    put_line(text, &[Token::Word(word), Token::Number(count as u64)])
}

fn put_requests(text: &mut Vec<u8>, requests: &[Request]) -> Result<(), AllocError>
    ensures { OnOk result (text.new.items ≡ text.old.items ++ flat_map spelled_line (map request_line requests.now)) }
{
    for request in requests {
        let gain = u64::from(request.gain);
        put_line(text, &[Token::Word("r"), Token::Number(gain)])?;
    }
    Ok(())
}

fn put_strips(text: &mut Vec<u8>, strips: &[Strip]) -> Result<(), AllocError>
    ensures { OnOk result (text.new.items ≡ text.old.items ++ flat_map spelled_line (map strip_line strips.now)) }
{
    for strip in strips {
        put_strip(text, strip)?;
    }
    Ok(())
}

fn put_strip(text: &mut Vec<u8>, strip: &Strip) -> Result<(), AllocError>
    ensures { OnOk result (text.new.items ≡ text.old.items ++ spelled_line (strip_line strip.now)) }
{
    let forth = strip.windows[0];
    let back = strip.windows[1];
    let tokens = [
        Token::Word("s"),
        Token::Number(u64::from(strip.request)),
        twin_token(strip.twin),
        Token::Number(u64::from(strip.area)),
        Token::Number(u64::from(forth.early)),
        Token::Number(u64::from(forth.late)),
        Token::Number(u64::from(forth.duration)),
        Token::Number(u64::from(back.early)),
        Token::Number(u64::from(back.late)),
        Token::Number(u64::from(back.duration)),
    ];
    put_line(text, &tokens)
}

// The number of the twin, or `-`.
fn twin_token(twin: Option<u16>) -> Token
    ensures { bytes_of result ≡ twin_token twin }
{
    match twin {
        Some(twin) => Token::Number(u64::from(twin)),
        None => Token::Word("-"),
    }
}

// A line for each directed strip.
fn put_table(text: &mut Vec<u8>, table: &Table) -> Result<(), AllocError>
    ensures { OnOk result (text.new.items ≡ text.old.items ++ flat_map spelled_line (table_lines table.now)) }
{
    let mut row = [0; MAX_DIRECTED as usize];
    for x in 0..table.size() {
        copy_row(&mut row, table, x);
        put_numbers(text, &row[..usize::from(table.size())])?;
    }
    Ok(())
}

// Writes the manoeuvre times from directed strip x over the first places.
fn copy_row(row: &mut [u32], table: &Table, x: u16)
    requires there { x < table.now.size }
    requires room { table.now.size ≤ length row.old }
    ensures { take table.now.size row.new ≡ take table.now.size (drop (x * table.now.size) table.now.entries) }
{
    for y in 0..table.size() {
        row[usize::from(y)] = table.between(x, y);
    }
}

// A line of numbers.
fn put_numbers(text: &mut Vec<u8>, numbers: &[u32]) -> Result<(), AllocError>
    ensures { OnOk result (text.new.items ≡ text.old.items ++ spelled_line (map decimal numbers.now)) }
{
    put_number_line(text, &[], numbers.iter().map(|number| u64::from(*number)))
}
