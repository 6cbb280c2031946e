ghost use Rattle.std.specs.Prelude.{◌≡◌, [], ◌∷◌, ◌++◌, List, ℕ, Some, None, IfOk, OnOk, OnErr};
ghost use Rattle.negotiation.specs.Answered.{AreShort, answer_bytes, replies_bytes};
ghost use Rattle.negotiation.specs.declared.answer.Next.TheVariants.{Transmission};
ghost use Rattle.option_wire.specs.declared.reply.OptionReply.{OptionReply};

use nbd_wire::SessionFlags;
use option_wire::{ExportAnswer, OptionReply, encode_export_answer, encode_option_reply};
use std::alloc::{AllocError, Global};
use std::marker::Model;

/// What a session has agreed on.
#[derive(Clone, Copy)]
pub struct Agreed {
    /// What the replies to requests go by.
    pub flags: SessionFlags,
    /// Whether both sides set NO_ZEROES.
    pub no_zeroes: bool,
}

/// What comes after an option.
#[derive(Clone, Copy)]
pub enum Next {
    /// Another option.
    Option,
    /// Transmission.
    Transmission,
    /// The end of the session, for which the client asked.
    End,
    /// The end of the session, because the option can't be answered: refusal 20 (protocol end).
    Fault,
}

/// What an option is answered, and what becomes of the session.
#[derive(Drop)]
pub struct OptionAnswer {
    replies: Vec<OptionReply>,
    export: Option<ExportAnswer>,
    agreed: Agreed,
    next: Next,
}

impl Model for OptionAnswer {
    ghost use Rattle.negotiation.specs.Answered.{Answered};

    ghost Value = { Answered };

    ghost view = { λ answer. record { replies = answer.replies.items; export = answer.export; agreed = answer.agreed; next = answer.next } };
}

impl OptionAnswer {
    /// The answer with these replies, in their order.
    pub fn new(replies: Vec<OptionReply>, agreed: Agreed, next: Next) -> OptionAnswer
        ensures { result ≡ record { replies = replies.items; export = None; agreed = agreed; next = next } }
    {
        OptionAnswer {
            replies,
            export: None,
            agreed,
            next,
        }
    }

    /// That of an EXPORT_NAME which begins transmission: it is told the export, and gets no reply.
    pub fn begin(alloc: Global, export: ExportAnswer, agreed: Agreed) -> OptionAnswer
        ensures { result ≡ record { replies = []; export = Some export; agreed = agreed; next = Transmission } }
    {
        OptionAnswer {
            replies: Vec::new(alloc),
            export: Some(export),
            agreed,
            next: Next::Transmission,
        }
    }

    /// Appends the replies to the option of this number, or the export that an EXPORT_NAME is told. Refusal 0 (no memory): then
    /// nothing of it is there.
    pub fn encode(&self, option: u32, out: &mut Vec<u8>) -> Result<(), AllocError>
        requires { AreShort self.now.replies }
        ensures ok { OnOk result (out.new.items ≡ out.old.items ++ answer_bytes option self.now) }
        ensures err { OnErr result (out.new.items ≡ out.old.items) }
    {
        let len = out.len();
        let encoded = self.encode_all(option, out);
        if encoded.is_err() {
            out.truncate(len);
        }
        encoded
    }

    // Appends it. If memory runs out only the first of it may be there.
    fn encode_all(&self, option: u32, out: &mut Vec<u8>) -> Result<(), AllocError>
        requires { AreShort self.now.replies }
        ensures ok { OnOk result (out.new.items ≡ out.old.items ++ answer_bytes option self.now) }
        ensures err { OnErr result ((some : List ℕ) × (out.new.items ≡ out.old.items ++ some)) }
    {
        self.encode_each(option, out)?;
        match &self.export {
            Some(export) => encode_export_answer(export, out),
            None => Ok(()),
        }
    }

    // Appends the replies, one after another. If memory runs out only the first of them are there.
    fn encode_each(&self, option: u32, out: &mut Vec<u8>) -> Result<(), AllocError>
        requires { AreShort self.now.replies }
        ensures ok { OnOk result (out.new.items ≡ out.old.items ++ replies_bytes option self.now.replies) }
        ensures err { OnErr result ((some : List ℕ) × (out.new.items ≡ out.old.items ++ some)) }
    {
        for reply in &self.replies {
            encode_option_reply(option, reply, out)?;
        }
        Ok(())
    }

    /// What is agreed on from now on.
    pub fn agreed(&self) -> Agreed
        ensures { result ≡ self.now.agreed }
    {
        self.agreed
    }

    /// What comes after the option.
    pub fn next(&self) -> Next
        ensures { result ≡ self.now.next }
    {
        self.next
    }
}

/// A reply alone.
pub fn one(alloc: Global, reply: OptionReply) -> Result<Vec<OptionReply>, AllocError>
    ensures { IfOk result (λ replies. replies.items ≡ reply ∷ []) }
{
    let mut replies = Vec::new(alloc);
    replies.push(reply)?;
    Ok(replies)
}

/// Two replies.
pub fn two(
    alloc: Global,
    first: OptionReply,
    second: OptionReply,
) -> Result<Vec<OptionReply>, AllocError>
    ensures { IfOk result (λ replies. replies.items ≡ first ∷ second ∷ []) }
{
    let mut replies = one(alloc, first)?;
    replies.push(second)?;
    Ok(replies)
}
