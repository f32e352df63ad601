// The three kinds of line: a command's answer, where the run stopped and why, and the tally at the end.
ghost use Rattle.std.proofs.Math.Option.{some};
ghost use Rattle.std.specs.Prelude.{Ok};
ghost use Rattle.lines.specs.Lines.{line, said, line_of_stop, end_line};
ghost use Rattle.lines.specs.Output.{Appends};
ghost use Rattle.lines.specs.Replies.{told};

use crate::output::Out;
use crate::reply::Reply;
use crate::tally::Tally;
use fields::Stop;
use records::Refusal;

impl Out<'_> {
    #[tactic(auto, using(crate::proofs::Appending::then_more, crate::proofs::Appending::nothing), unfolding(crate::specs::Lines::said))]
    fn say_reply(&mut self, reply: Reply<'_>)
        ensures { Appends (said (told (Ok reply.entry))) self.old self.new }
    {
        self.push(" ok");
        match reply {
            Reply::Done => {}
            Reply::Number(n) => self.push_numbers(&[n]),
            Reply::Page { count, requests } => {
                self.push_counted(" ", count);
                self.push_numbers(&requests[..(count as usize).min(requests.len())]);
            }
            Reply::Status(status) => {
                self.push(" ");
                self.push(status.name());
            }
        }
    }

    // What follows a command's number.
    #[tactic(auto, using(crate::proofs::Appending::then_more), unfolding(crate::specs::Lines::said))]
    fn say(&mut self, answer: Result<Reply<'_>, Refusal>)
        ensures { Appends (said (told answer.entry)) self.old self.new }
    {
        match answer {
            Ok(reply) => self.say_reply(reply),
            Err(why) => {
                self.push(" refused");
                self.push_numbers(&[u64::from(why)]);
                self.push(" ");
                self.push(why.text());
            }
        }
    }

    #[tactic(auto, using(crate::proofs::Appending::then_more), unfolding(crate::specs::Lines::line))]
    pub fn answer_line(&mut self, index: u64, answer: Result<Reply<'_>, Refusal>)
        ensures { Appends (line index (told answer.entry)) self.old self.new }
    {
        self.push_decimal(index);
        self.say(answer);
        self.push("\n");
    }

    pub fn stopped_line(&mut self, stop: Stop)
        ensures { Appends (line_of_stop (some stop)) self.old self.new }
    {
        self.push_counted("stopped at ", stop.place as u64);
        self.push(": ");
        self.push(stop.fault.name());
        self.push("\n");
    }

    pub fn end_line(&mut self, tally: Tally)
        ensures { Appends (end_line tally) self.old self.new }
    {
        self.push_counted("end ", tally.commands);
        self.push_counted(" commands, ", tally.accepted);
        self.push_counted(" accepted, ", tally.refused);
        self.push(" refused");
        self.push("\n");
    }
}
