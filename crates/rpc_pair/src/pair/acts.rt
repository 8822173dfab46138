// What events ask for by which nothing moves.
ghost use Rattle.std.specs.Prelude.{◌≡◌, IfOk, None};
ghost use Rattle.rpc_meeting.specs.Deeds.{find_label};
ghost use Rattle.rpc_schedule.specs.declared.event.Event.TheVariants as ev;

use super::Pair;
use crate::asking::{abort, call, call_text};
use crate::finding::{called_versions, is_called, line};
use crate::menus::last_menu;
use crate::telling::{Telling, end, fail, is_stream, is_tracked, tell_text};
use bp_value::{Blob, OutOfMemory, Value};
use rpc_meeting::{Refusal, StepAnswer};
use rpc_schedule::Event;
use rpc_schema::{best, menu_desc};

impl Pair {
    ghost use Rattle.rpc_pair.specs.Pairs.{AsksLineOf, Comes, IsDeedAt, IsQuiet};
    ghost use Rattle.rpc_pair.specs.Made.{dispatches_of};
    ghost use Rattle.rpc_pair.specs.Tellings.{told_event};

    /// Does what an event asks for by which nothing moves.
    pub(super) fn act_quietly(&mut self, event: &Event) -> Result<StepAnswer, OutOfMemory>
        requires { IsQuiet event.now }
        ensures { IfOk result (λ answer.
            Comes (IsDeedAt self.old event.now) self.old answer self.new) }
    {
        match event {
            Event::Ask {
                label,
                name,
                version,
                text,
            } => self.ask(label, name, *version, text),
            Event::Menu { label } => self.ask_menu(label),
            Event::Best { label, name, text } => self.ask_best(label, name, text),
            Event::Abort { label } => self.abort(label),
            Event::Reply { label, text } => self.tell(Telling::Reply, label, text),
            Event::Begin { label, text } => self.tell(Telling::Begin, label, text),
            Event::Decline { label, text } => self.tell(Telling::Decline, label, text),
            Event::Item { label, text } => self.tell(Telling::Item, label, text),
            Event::Fail { label, text } => self.fail(label, text),
            Event::End { label } => self.end(label),
            Event::Show { label } => Ok(self.show(label)),
            Event::At { now } => self.tick(*now),
            Event::CloseClient => Ok(self.close_client()),
            Event::CloseServer => Ok(self.close_server()),
            Event::EofClient => Ok(self.eof_client()),
            Event::EofServer => Ok(self.eof_server()),
            Event::Up { .. } | Event::Down { .. } => unreachable!(),
        }
    }

    fn ask(
        &mut self,
        label: &Blob,
        name: &Blob,
        version: i64,
        text: &Blob,
    ) -> Result<StepAnswer, OutOfMemory>
        ensures { IfOk result (λ answer.
            Comes (IsDeedAt self.old (ev.Ask label.now name.now version text.now))
            self.old answer self.new) }
    {
        if self.book.under(label.as_slice()).is_some() {
            return Ok(StepAnswer::Refused(Refusal::LabelTaken));
        }
        self.ask_line(label, name.as_slice(), version, text)
    }

    // Calls the procedure of this name and version, if the client has it.
    fn ask_line(
        &mut self,
        label: &Blob,
        name: &[u8],
        version: i64,
        text: &Blob,
    ) -> Result<StepAnswer, OutOfMemory>
        requires { find_label label.now (dispatches_of self.old.book) ≡ None }
        ensures { IfOk result (λ answer.
            Comes (AsksLineOf self.old label.now text.now name.now version)
            self.old answer self.new) }
    {
        match line(self.server.schema().entries(), name, version) {
            Some(entry) if is_called(entry.side) => call_text(
                &mut self.book,
                self.alloc,
                self.limits.max_message,
                label,
                &entry.desc,
                text,
            ),
            _ => Ok(StepAnswer::Refused(Refusal::NoSuchRpc)),
        }
    }

    fn ask_menu(&mut self, label: &Blob) -> Result<StepAnswer, OutOfMemory>
        ensures { IfOk result (λ answer.
            Comes (IsDeedAt self.old (ev.Menu label.now)) self.old answer self.new) }
    {
        if self.book.under(label.as_slice()).is_some() {
            return Ok(StepAnswer::Refused(Refusal::LabelTaken));
        }
        let desc = menu_desc(self.alloc)?;
        call(&mut self.book, label, &desc, &Value::Unit)
    }

    fn ask_best(
        &mut self,
        label: &Blob,
        name: &Blob,
        text: &Blob,
    ) -> Result<StepAnswer, OutOfMemory>
        ensures { IfOk result (λ answer.
            Comes (IsDeedAt self.old (ev.Best label.now name.now text.now))
            self.old answer self.new) }
    {
        if self.book.under(label.as_slice()).is_some() {
            return Ok(StepAnswer::Refused(Refusal::LabelTaken));
        }
        let Some(menu) = last_menu(self.alloc, self.book.as_book())? else {
            return Ok(StepAnswer::Refused(Refusal::NoMenu));
        };
        let entries = self.server.schema().entries();
        let own = called_versions(self.alloc, entries, name.as_slice())?;
        match best(&own, &menu, name.as_slice()) {
            Some(version) => self.ask_line(label, name.as_slice(), version, text),
            None => Ok(StepAnswer::Refused(Refusal::NoVersion)),
        }
    }

    fn abort(&mut self, label: &Blob) -> Result<StepAnswer, OutOfMemory>
        ensures { IfOk result (λ answer.
            Comes (IsDeedAt self.old (ev.Abort label.now)) self.old answer self.new) }
    {
        match self.book.under(label.as_slice()) {
            Some(made) => {
                let id = made.id;
                abort(&mut self.book, id)
            }
            None => Ok(StepAnswer::Refused(Refusal::NoSuchLabel)),
        }
    }

    // A handler tells the value that a text is.
    fn tell(
        &mut self,
        telling: Telling,
        label: &Blob,
        text: &Blob,
    ) -> Result<StepAnswer, OutOfMemory>
        ensures { IfOk result (λ answer.
            Comes (IsDeedAt self.old (told_event telling label.now text.now))
            self.old answer self.new) }
    {
        let Some(made) = self.book.under(label.as_slice()) else {
            return Ok(StepAnswer::Refused(Refusal::NoSuchLabel));
        };
        if !telling.is_of(made.desc.kind) {
            return Ok(StepAnswer::Refused(Refusal::WrongKind));
        }
        tell_text(
            &mut self.server,
            self.alloc,
            self.limits.max_message,
            telling,
            made.id,
            &made.desc,
            text,
        )
    }

    fn fail(&mut self, label: &Blob, text: &Blob) -> Result<StepAnswer, OutOfMemory>
        ensures { IfOk result (λ answer.
            Comes (IsDeedAt self.old (ev.Fail label.now text.now)) self.old answer self.new) }
    {
        match self.book.under(label.as_slice()) {
            Some(made) if is_tracked(made.desc.kind) => fail(&mut self.server, made.id, text),
            Some(_) => Ok(StepAnswer::Refused(Refusal::WrongKind)),
            None => Ok(StepAnswer::Refused(Refusal::NoSuchLabel)),
        }
    }

    fn end(&mut self, label: &Blob) -> Result<StepAnswer, OutOfMemory>
        ensures { IfOk result (λ answer.
            Comes (IsDeedAt self.old (ev.End label.now)) self.old answer self.new) }
    {
        match self.book.under(label.as_slice()) {
            Some(made) if is_stream(made.desc.kind) => end(&mut self.server, made.id),
            Some(_) => Ok(StepAnswer::Refused(Refusal::WrongKind)),
            None => Ok(StepAnswer::Refused(Refusal::NoSuchLabel)),
        }
    }

    fn show(&self, label: &Blob) -> StepAnswer
        ensures { Comes (IsDeedAt self.now (ev.Show label.now)) self.now result self.now }
    {
        match self.book.under(label.as_slice()) {
            Some(_) => StepAnswer::Shown,
            None => StepAnswer::Refused(Refusal::NoSuchLabel),
        }
    }

    // A moment, which both ends look at.
    fn tick(&mut self, now: u64) -> Result<StepAnswer, OutOfMemory>
        ensures { IfOk result (λ answer.
            Comes (IsDeedAt self.old (ev.At now)) self.old answer self.new) }
    {
        self.moment = self.moment.max(now);
        self.book.tick(self.moment)?;
        self.server.tick(self.moment)?;
        Ok(StepAnswer::Done)
    }

    fn close_client(&mut self) -> StepAnswer
        ensures { Comes (IsDeedAt self.old ev.CloseClient) self.old result self.new }
    {
        self.book.close();
        StepAnswer::Done
    }

    fn close_server(&mut self) -> StepAnswer
        ensures { Comes (IsDeedAt self.old ev.CloseServer) self.old result self.new }
    {
        self.server.close();
        StepAnswer::Done
    }

    fn eof_client(&mut self) -> StepAnswer
        ensures { Comes (IsDeedAt self.old ev.EofClient) self.old result self.new }
    {
        self.book.end_of_input();
        StepAnswer::Done
    }

    fn eof_server(&mut self) -> StepAnswer
        ensures { Comes (IsDeedAt self.old ev.EofServer) self.old result self.new }
    {
        self.server.end_of_input();
        StepAnswer::Done
    }
}
