// The ticket of an auction.
ghost use Rattle.series.specs.Days.{shown_as};
ghost use Rattle.series.specs.Tickets.{shown};
ghost use Rattle.std.specs.Prelude.{◌≡◌, true};

use crate::day::ShownTicket;

// The duty to finish one auction. It may be dropped only once it is discharged, which is said of a field, as a rule of this
// project: one ticket is lent to calls before and after.
pub struct Ticket {
    pub(crate) series: u16,
    pub(crate) customer: u16,
    pub(crate) discharged: bool,
}

impl Drop for Ticket {
    fn drop(self)
        requires { self.discharged ≡ true }
    {
        let Ticket {
            series: _,
            customer: _,
            discharged: _,
        } = self;
    }
}

impl Ticket {
    // A ticket made from data, and one taken apart into data. Only a replay of a day does this: a `From` would be public,
    // and let anybody forge a ticket or be rid of its duty.
    pub(crate) fn from_note(note: ShownTicket) -> Ticket
        ensures { shown result ≡ shown_as note }
    {
        Ticket {
            series: note.series,
            customer: note.customer,
            discharged: note.discharged,
        }
    }

    pub(crate) fn note(self) -> ShownTicket
        ensures { shown_as result ≡ shown self }
    {
        let Ticket {
            series,
            customer,
            discharged,
        } = self;
        ShownTicket {
            series,
            customer,
            discharged,
        }
    }
}
