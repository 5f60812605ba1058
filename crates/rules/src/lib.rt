// The rules of the series as a formal model, and what is proved of them. Each function here only carries a theorem.
#![tactic(auto)]

ghost use Rattle.rules.specs.Books.{BooksHold};
ghost use Rattle.rules.specs.Law.{NoOrderDenied, RecordsAddUp, DeliveredRulesLawful, RefusalsChangeNothing};
ghost use Rattle.rules.specs.Opening.{TopIsTheTop};
ghost use Rattle.rules.specs.Wrong.{WrongHostsRefused};

// No sequence of calls can deny an order the best terms on offer, under any lawful sharing rule.
pub fn best_terms_stand()
    ensures { NoOrderDenied }
{}

// Both delivered rules are lawful, so the law holds of them.
pub fn delivered_rules_lawful()
    ensures { DeliveredRulesLawful }
{}

// In every order record of every run, what is left, traded and gone adds up to the size.
pub fn records_add_up()
    ensures { RecordsAddUp }
{}

// A refused call changes nothing.
pub fn refusals_change_nothing()
    ensures { RefusalsChangeNothing }
{}

// The opening price is the one grid price that trades and that no other opens better than.
pub fn top_is_the_top()
    ensures { TopIsTheTop }
{}

// The worked books hold.
pub fn books_hold()
    ensures { BooksHold }
{}

// Hosts that break one part of the law are refused by it.
pub fn wrong_hosts_refused()
    ensures { WrongHostsRefused }
{}
