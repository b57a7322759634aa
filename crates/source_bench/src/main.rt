//! Times the text source on a file: reads it to its end by look and step, then by fetch and pass.
#![tactic(auto)]

use answers::refusal::Refusal;
use source::body::Body;
use source::head::Head;
use source::marked::take_first;
use source::source::Source;
use std::time::Instant;
use std::{env, fs};
use text_source::cursor::TextSource;

// Something of each item, so that reading it is not left out.
fn weigh(head: Head, body: &Body) -> u64 {
    match head {
        Head::Addition(number, l, h, _) => u64::from(number)
            .wrapping_add(l as u64)
            .wrapping_add(h as u64)
            .wrapping_add(u64::from(body.literals[0].unsigned_abs()))
            .wrapping_add(u64::from(body.numbers[0])),
        Head::Deletion(h, _) => h as u64,
    }
}

fn look_and_step(source: &mut TextSource, body: &mut Body) -> Result<Head, Refusal> {
    let head = source.look(&mut body.literals, &mut body.numbers)?;
    source.step()?;
    Ok(head)
}

fn fetch_and_pass(source: &mut TextSource, body: &mut Body) -> Result<Head, Refusal> {
    take_first(source, &mut body.literals, &mut body.numbers)
}

// Takes item by item to the end. A turn for each byte and no `while let`: that `take` comes to an end
// nothing says, and there are fewer items than bytes.
fn sum_of<F: Fn(&mut TextSource, &mut Body) -> Result<Head, Refusal>>(bytes: &[u8], take: F) -> u64
    requires { F.IsAlwaysCallable take }
{
    let mut source = TextSource::new(bytes);
    let mut body = Body::new();
    let mut sum = 0u64;
    for _ in bytes {
        let Ok(head) = take(&mut source, &mut body) else {
            break;
        };
        sum = sum.wrapping_add(weigh(head, &body));
    }
    sum
}

// Prints how long it takes to read the text so.
fn time<F: Fn(&mut TextSource, &mut Body) -> Result<Head, Refusal>>(
    rt: &HostRuntime,
    what: &str,
    bytes: &[u8],
    take: F,
) -> anyhow::Result<()>
    requires { F.IsAlwaysCallable take }
{
    let start = Instant::now(rt)?;
    let sum = sum_of(bytes, take);
    let took = start.elapsed(rt)?.as_micros();
    let length = bytes.len();
    println!(rt; "{what}: {length} bytes in {took} us (sum {sum})")?;
    Ok(())
}

fn main(rt: HostRuntime) -> anyhow::Result<()> {
    let mut args = env::args(&rt)?;
    let _name = args.next();
    let Some(path) = args.next() else {
        rt.println("usage: source_bench FILE (scripts/bench makes one)")?;
        return Ok(());
    };
    let bytes = fs::read(&rt, path.as_str())?;
    for _ in 0..3 {
        time(&rt, "look and step", bytes.as_slice(), look_and_step)?;
        time(&rt, "fetch and pass", bytes.as_slice(), fetch_and_pass)?;
    }
    Ok(())
}
