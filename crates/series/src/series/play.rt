// The calls of a day, each made on a series as its data say. That the rows lent are unused stands at each call: only the
// call tells how many there are, and a struct of a call with its rows would be made for this one use.
ghost use Rattle.std.specs.Prelude.{◌≡◌, []};
ghost use Rattle.rules.specs.Runs.{lent};
ghost use Rattle.series.specs.Answers.{Answers};
ghost use Rattle.series.specs.Days.{answer_of, handed_of, call_of, unused};
ghost use Rattle.series.specs.State.{state};

use crate::day::{
    Accepted, AwayCall, BetterCall, ClockCall, DayCall, EnterCall, FinishCall, HandedBack,
    ImproveCall, OpenCall, Outcome, PlaceCall, StartCall, WithdrawCall,
};
use crate::pass::{PreOpeningPass, TradingPass};
use crate::series::Series;
use crate::ticket::Ticket;
use market::row::Row;
use sharing::rule::SharingRule;

impl<R: SharingRule> Series<R> {
    fn play_place(&mut self, call: PlaceCall) -> Outcome
        ensures rule { self.new.rule ≡ self.old.rule }
        ensures answers { Answers (R.shared self.old.rule) (state self.old) (state self.new) [] (answer_of result.answer) (handed_of result.handed) (call_of (DayCall.Place call)) }
    {
        let pass = PreOpeningPass { series: call.pass };
        let result = self.place(
            &pass,
            call.time,
            call.member,
            call.side,
            call.account,
            call.kind,
            call.size,
        );
        Outcome {
            answer: result.map(Accepted::from),
            handed: None,
        }
    }

    fn play_withdraw(&mut self, call: WithdrawCall, rows: &mut [Row]) -> Outcome
        requires { rows.old ≡ unused call.lent }
        ensures rule { self.new.rule ≡ self.old.rule }
        ensures answers { Answers (R.shared self.old.rule) (state self.old) (state self.new) rows.new (answer_of result.answer) (handed_of result.handed) (call_of (DayCall.Withdraw call)) }
    {
        let result = self.withdraw(call.time, call.member, call.order, rows);
        Outcome {
            answer: result.map(Accepted::from),
            handed: None,
        }
    }

    fn play_away(&mut self, call: AwayCall) -> Outcome
        ensures rule { self.new.rule ≡ self.old.rule }
        ensures answers { Answers (R.shared self.old.rule) (state self.old) (state self.new) [] (answer_of result.answer) (handed_of result.handed) (call_of (DayCall.Away call)) }
    {
        let result = self.away(call.time, call.market, call.bid, call.offer);
        Outcome {
            answer: result.map(Accepted::from),
            handed: None,
        }
    }

    fn play_open(&mut self, call: OpenCall, rows: &mut [Row]) -> Outcome
        requires { rows.old ≡ unused call.lent }
        ensures rule { self.new.rule ≡ self.old.rule }
        ensures answers { Answers (R.shared self.old.rule) (state self.old) (state self.new) rows.new (answer_of result.answer) (handed_of result.handed) (call_of (DayCall.Open call)) }
    {
        let pass = PreOpeningPass { series: call.pass };
        match self.open(pass, call.time, call.waived, rows) {
            Ok((pass, opened)) => Outcome {
                answer: Ok(opened.into()),
                handed: Some(HandedBack::TradingPass(pass.series)),
            },
            Err((pass, refusal)) => Outcome {
                answer: Err(refusal),
                handed: Some(HandedBack::PreOpeningPass(pass.series)),
            },
        }
    }

    fn play_enter(&mut self, call: EnterCall, rows: &mut [Row]) -> Outcome
        requires { rows.old ≡ unused call.lent }
        ensures rule { self.new.rule ≡ self.old.rule }
        ensures answers { Answers (R.shared self.old.rule) (state self.old) (state self.new) rows.new (answer_of result.answer) (handed_of result.handed) (call_of (DayCall.Enter call)) }
    {
        let pass = TradingPass { series: call.pass };
        let result = self.enter(
            &pass,
            call.time,
            call.member,
            call.side,
            call.account,
            call.price,
            call.size,
            rows,
        );
        Outcome {
            answer: result.map(Accepted::from),
            handed: None,
        }
    }

    fn play_clock(&mut self, call: ClockCall, rows: &mut [Row]) -> Outcome
        requires { rows.old ≡ unused call.lent }
        ensures rule { self.new.rule ≡ self.old.rule }
        ensures answers { Answers (R.shared self.old.rule) (state self.old) (state self.new) rows.new (answer_of result.answer) (handed_of result.handed) (call_of (DayCall.Clock call)) }
    {
        let result = self.clock(call.time, rows);
        Outcome {
            answer: result.map(Accepted::from),
            handed: None,
        }
    }

    fn play_start(&mut self, call: StartCall) -> Outcome
        ensures rule { self.new.rule ≡ self.old.rule }
        ensures answers { Answers (R.shared self.old.rule) (state self.old) (state self.new) [] (answer_of result.answer) (handed_of result.handed) (call_of (DayCall.Start call)) }
    {
        let pass = TradingPass { series: call.pass };
        let result = self.start(
            &pass,
            call.time,
            call.member,
            call.side,
            call.price,
            call.size,
        );
        match result {
            Ok((ticket, started)) => Outcome {
                answer: Ok(started.into()),
                handed: Some(HandedBack::Ticket(ticket.note())),
            },
            Err(refusal) => Outcome {
                answer: Err(refusal),
                handed: None,
            },
        }
    }

    fn play_improve(&mut self, call: ImproveCall, rows: &mut [Row]) -> Outcome
        requires { rows.old ≡ unused call.lent }
        ensures rule { self.new.rule ≡ self.old.rule }
        ensures answers { Answers (R.shared self.old.rule) (state self.old) (state self.new) rows.new (answer_of result.answer) (handed_of result.handed) (call_of (DayCall.Improve call)) }
    {
        let pass = TradingPass { series: call.pass };
        let result = self.improve(
            &pass,
            call.time,
            call.member,
            call.price,
            call.size,
            call.replaces,
            rows,
        );
        Outcome {
            answer: result.map(Accepted::from),
            handed: None,
        }
    }

    fn play_better(&mut self, call: BetterCall, rows: &mut [Row]) -> Outcome
        requires { rows.old ≡ unused call.lent }
        ensures rule { self.new.rule ≡ self.old.rule }
        ensures answers { Answers (R.shared self.old.rule) (state self.old) (state self.new) rows.new (answer_of result.answer) (handed_of result.handed) (call_of (DayCall.Better call)) }
    {
        let pass = TradingPass { series: call.pass };
        let ticket = Ticket::from_note(call.ticket);
        let result = self.better(&pass, &ticket, call.time, call.price, rows);
        Outcome {
            answer: result.map(Accepted::from),
            handed: Some(HandedBack::Ticket(ticket.note())),
        }
    }

    fn play_finish(&mut self, call: FinishCall, rows: &mut [Row]) -> Outcome
        requires { rows.old ≡ unused call.lent }
        ensures rule { self.new.rule ≡ self.old.rule }
        ensures answers { Answers (R.shared self.old.rule) (state self.old) (state self.new) rows.new (answer_of result.answer) (handed_of result.handed) (call_of (DayCall.Finish call)) }
    {
        let mut ticket = Ticket::from_note(call.ticket);
        let result = self.finish(&mut ticket, call.time, rows);
        Outcome {
            answer: result.map(Accepted::from),
            handed: Some(HandedBack::Ticket(ticket.note())),
        }
    }

    // Makes a call in the memory that it is lent. A match: a day is data, and the journal shows each call.
    pub(super) fn play(&mut self, call: DayCall, rows: &mut [Row]) -> Outcome
        requires { rows.old ≡ lent (call_of call) }
        ensures rule { self.new.rule ≡ self.old.rule }
        ensures answers { Answers (R.shared self.old.rule) (state self.old) (state self.new) rows.new (answer_of result.answer) (handed_of result.handed) (call_of call) }
    {
        match call {
            DayCall::Place(place) => self.play_place(place),
            DayCall::Withdraw(withdraw) => self.play_withdraw(withdraw, rows),
            DayCall::Away(away) => self.play_away(away),
            DayCall::Open(open) => self.play_open(open, rows),
            DayCall::Enter(enter) => self.play_enter(enter, rows),
            DayCall::Clock(clock) => self.play_clock(clock, rows),
            DayCall::Start(start) => self.play_start(start),
            DayCall::Improve(improve) => self.play_improve(improve, rows),
            DayCall::Better(better) => self.play_better(better, rows),
            DayCall::Finish(finish) => self.play_finish(finish, rows),
        }
    }
}
