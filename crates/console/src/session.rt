//! One session at the console.
use block::Block;
use model::{Refusal, Request, answer_number, number_and_line};
use monitor::{report, request, start};
use policy::{Ladder, Pair, Separation};
use std::alloc::{AllocError, Global};
use text::input::{first_line, split_at_empty_line};
use text::request::request_numbers;

/// Room for the longest report: 63 times 62 lines of at most 14 bytes.
const LONGEST_REPORT: usize = 54684;

/// A block under the pedal's rule, and what was printed so far.
#[derive(Drop)]
struct Console<'a> {
    heap: Global,
    block: Block,
    rule: Separation<'a>,
    out: Vec<u8>,
}

impl Console<'_> {
    /// The answer to one line of requests; one of another form is refused as a malformed line of a start text is.
    fn answer(&mut self, line: &[u8]) -> Result<(), Refusal> {
        let numbers = request_numbers(line).ok_or(Refusal::LineForm)?;
        request(
            &mut self.block,
            &Ladder,
            &self.rule,
            &Request::from(numbers),
        )
    }

    /// Answers each line of requests.
    fn answer_lines(&mut self, lines: &[u8]) -> Result<(), AllocError> {
        let mut left = lines;
        while let Some((line, rest)) = first_line(left) {
            let answer = answer_number(self.answer(line));
            let printed = format!(in self.heap; "answer={answer}\n")?;
            self.out.extend_from_slice(printed.as_bytes())?;
            left = rest;
        }
        Ok(())
    }

    /// Tells who controls whom.
    fn tell_control(&mut self) -> Result<(), AllocError> {
        let mut buffer = vec![in self.heap; 0; LONGEST_REPORT]?;
        if let Ok(length) = report(&self.block, buffer.as_mut_slice()) {
            if length <= buffer.len() {
                self.out.extend_from_slice(&buffer.as_slice()[0..length])?;
            }
        }
        Ok(())
    }

    /// Starts from the text before the first empty line, and answers the lines behind it.
    fn serve(&mut self, input: &[u8]) -> Result<(), AllocError> {
        let (text, requests) = split_at_empty_line(input).unwrap_or((input, &[]));
        let answer = start(&mut self.block, &Ladder, &self.rule, text);
        if answer.is_err() {
            let (number, line) = number_and_line(answer);
            let printed = format!(in self.heap; "start={number},{line}\n")?;
            return self.out.extend_from_slice(printed.as_bytes());
        }
        self.answer_lines(requests)?;
        self.tell_control()
    }
}

/// What the program prints for the input.
pub fn run(heap: Global, input: &[u8]) -> Result<Vec<u8>, AllocError> {
    let pairs: [Pair; 0] = [];
    let Some(rule) = Separation::new(&pairs) else {
        return Ok(Vec::new(heap));
    };
    let mut console = Console {
        heap,
        block: Block::new(),
        rule,
        out: Vec::new(heap),
    };
    console.serve(input)?;
    Ok(console.out)
}
