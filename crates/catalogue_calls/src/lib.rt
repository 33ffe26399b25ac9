// Pages arrive at a catalogue and leave it, in the lent buffer (document 02, A13 and A14): the catalogue is checked whole at each call, an arrival
// writes behind the last page, a leaving moves the later ones down. What must be believed of both is in `catalogue`.
#![tactic(auto)]

mod answer;
mod arrive;
mod catalogued;
mod differ;
mod houses;
mod judge;
mod leave;
mod lookup;
mod numbers;
mod once;
mod read;
mod standing;

pub use arrive::add;
pub use catalogued::Catalogued;
pub use leave::remove;
