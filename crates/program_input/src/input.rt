// An input that question 13 passed, and what it holds.
ghost use Rattle.std.specs.Prelude.{◌≡◌, ◌+◌, ◌*◌, ◌≤◌, ◌<◌, length, drop};
ghost use Rattle.big_endian.specs.BigEndian.{longs_from};
ghost use Rattle.refusal.specs.Questions.{answered};
ghost use Rattle.program_input.specs.Input.{head_length, list_length, file_start, input_question};
ghost use Rattle.program_input.specs.Inside.{head_of, asked_entries, CompleteInput};

use crate::{HEAD_LENGTH, LIST_ROOM, LONGEST_INPUT};
use arrayvec::ArrayVec;
use refusal::Refusal;
use std::marker::Model;

// The numbers at the start of the input.
#[derive(Clone, Copy)]
pub struct Head {
    pub group: u8,
    pub first: u32,
    pub last: u32,
    pub yearly: u32,
    pub listed: usize,
}

impl Head {
    fn of(bytes: &[u8]) -> Head
        requires { head_length ≤ length bytes.now }
        ensures head { result ≡ head_of bytes.now }
        ensures listed { result.listed < 65_536 }
    {
        Head {
            group: bytes[0],
            first: big_endian::long_at(bytes, 1),
            last: big_endian::long_at(bytes, 5),
            yearly: big_endian::long_at(bytes, 9),
            listed: big_endian::word_at(bytes, 13) as usize,
        }
    }

    // Where the profile file begins, behind the list.
    fn file_start(self) -> usize
        requires { self.listed < 65_536 }
        ensures { result ≡ head_length + self.listed * 4 }
    {
        HEAD_LENGTH + self.listed * 4
    }
}

// In a contract it is its bytes, as many as question 13 asks for.
#[derive(Drop)]
pub struct Input<'a> {
    bytes: &'a [u8],
    head: Head,
}

impl<'a> Model for Input<'a> {
    ghost use Rattle.std.specs.Prelude.{List, ℕ, ◌≡◌};
    ghost use Rattle.program_input.specs.Inside.{head_of, CompleteInput};

    ghost Value = { List ℕ };

    ghost view = { λ input. input.bytes.now };

    ghost invariant = { λ input. CompleteInput input.bytes.now × (input.head ≡ head_of input.bytes.now) };
}

impl<'a> Input<'a> {
    // Question 13.
    #[tactic(auto, unfolding(crate::specs::Input::input_question))]
    pub fn new(bytes: &'a [u8]) -> Result<Input<'a>, Refusal>
        ensures { result ≡ answered (input_question bytes.now) bytes.now }
    {
        if LONGEST_INPUT < bytes.len()
            || bytes.len() < HEAD_LENGTH
            || bytes.len() < Head::of(bytes).file_start()
        {
            return Err(Refusal::BadInput);
        }
        Ok(Input::of_complete(bytes))
    }

    // The input of bytes that are known to pass question 13, which is not asked.
    pub fn of_complete(bytes: &'a [u8]) -> Input<'a>
        requires { CompleteInput bytes.now }
        ensures { result ≡ bytes.now }
    {
        Input {
            bytes,
            head: Head::of(bytes),
        }
    }

    pub fn head(&self) -> Head
        ensures { result ≡ head_of self.now }
    {
        self.head
    }

    // The entries of the list that question 9 can ask about.
    pub fn holidays(&self) -> ArrayVec<u32, LIST_ROOM>
        ensures { result.items ≡ longs_from self.now (asked_entries (list_length self.now)) head_length }
    {
        let mut holidays = ArrayVec::new();
        for i in 0..self.head.listed.min(LIST_ROOM) {
            holidays.push(big_endian::long_at(self.bytes, HEAD_LENGTH + i * 4));
        }
        holidays
    }

    // The profile file.
    pub fn file(&self) -> &'a [u8]
        ensures { result.now ≡ drop (file_start self.now) self.now }
    {
        &self.bytes[self.head.file_start()..]
    }
}
