// The program: reads setting.rec, ticket.rec and challenge.rec in the folder that it is run in, and writes the line of the
// challenge check's answer. A file that is missing or cannot be read counts as empty.
#![tactic(auto)]

ghost use Rattle.std.specs.Prelude.{◌≡◌, ◌≤◌, length, take};
ghost use Rattle.files.specs.Laws.Prefixes.{Leads};
ghost use Rattle.files.specs.Laws.Starts.{BuffersRoom, AnswerFor};

use files::{LONGEST_CHALLENGE, LONGEST_LINE, SETTING_BYTES};
use std::fs::File;
use std::io;
use std::io::{Read, Write};
use std::rt::Files;
use ticket::{Answer, Setting};

// Of each file one byte more is read than the longest has, which is enough to tell that it is too long.
const SETTING_ROOM: usize = SETTING_BYTES + 1;

const TICKET_ROOM: usize = Setting::LONGEST_TICKET + 1;

const CHALLENGE_ROOM: usize = LONGEST_CHALLENGE + 1;

// The first bytes of a file, as many as it has and there is room for.
#[derive(Drop)]
struct Start<const ROOM: usize> {
    bytes: [u8; ROOM],
    length: usize,
    ghost filled: { length ≤ ROOM },
}

impl<const ROOM: usize> Start<ROOM> {
    // Of no file yet.
    fn new() -> Start<ROOM>
        ensures { result.length ≡ 0 }
    {
        Start {
            bytes: [0; ROOM],
            length: 0,
        }
    }

    // Of the file of this name. They are read to where they stay, since a copy takes longer and more stack.
    fn read(&mut self, files: &impl Files, name: &str)
        ensures { Leads self.new.length self.new.bytes × (length self.new.bytes ≡ ROOM) }
    {
        self.length = match File::open(files, name) {
            Ok(mut file) => fill(&mut file, &mut self.bytes),
            Err(_) => 0,
        };
    }

    fn as_slice(&self) -> &[u8]
        ensures { result.now ≡ take self.now.length self.now.bytes }
    {
        &self.bytes[..self.length]
    }
}

fn main(rt: HostRuntime) -> io::Result<()> {
    let mut setting = Start::<SETTING_ROOM>::new();
    let mut ticket = Start::<TICKET_ROOM>::new();
    let mut challenge = Start::<CHALLENGE_ROOM>::new();
    setting.read(&rt, "setting.rec");
    ticket.read(&rt, "ticket.rec");
    challenge.read(&rt, "challenge.rec");
    let answer = check(&setting, &ticket, &challenge);
    let mut line = [0; LONGEST_LINE];
    let length = files::line(answer, &mut line);
    rt.stdout().write_all(&line[..length])
}

// The first bytes of an open file into a buffer, up to the file's end or to a read that fails; how many they are.
fn fill(file: &mut impl Read, buffer: &mut [u8]) -> usize
    ensures { Leads result buffer.new }
{
    let mut done = 0;
    while let Ok(more @ 1..) = file.read(&mut buffer[done..]) {
        done += more;
    }
    done
}

// The answer for the files that begin so.
fn check<const I: usize, const J: usize, const K: usize>(
    setting: &Start<I>,
    ticket: &Start<J>,
    challenge: &Start<K>,
) -> Answer
    requires { BuffersRoom setting.now.bytes setting.now.length ticket.now.bytes ticket.now.length challenge.now.bytes challenge.now.length }
    ensures { AnswerFor setting.now.bytes setting.now.length ticket.now.bytes ticket.now.length challenge.now.bytes challenge.now.length result }
{
    files::check(setting.as_slice(), ticket.as_slice(), challenge.as_slice())
}
