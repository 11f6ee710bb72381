//! Which refusal is due of each act that is served, by what the turns before it left.
ghost use Rattle.line_tracks.specs.acts.Due.{BootstrapsAreDue, CallsAreDue, DeliveriesAreDue, FatesAreDue, FirstInitIsFree, FlagsTell, InitsAreDue, MomentsAreDue, NamespacesAreDue, OrderIsDue, RestartsAreDue, StepsAreDue, StopsAreDue};

/// Where no placement stands, `init` is refused by nothing, and all other acts by their order.
pub fn first_acts_are_due()
    ensures order { OrderIsDue }
    ensures init { FirstInitIsFree }
{}

/// Where one stands: another `init` is out of order, as is a namespace whose name is there; there is a limit to namespaces,
/// and the moment doesn't fall.
pub fn rules_are_due()
    ensures inits { InitsAreDue }
    ensures namespaces { NamespacesAreDue }
    ensures moments { MomentsAreDue }
{}

/// Calls at the present version are refused where their namespace isn't there; a delivery never is.
pub fn calls_are_due()
    ensures calls { CallsAreDue }
    ensures deliveries { DeliveriesAreDue }
{}

/// Fates, stops, restarts and bootstraps are refused where a node or a shard isn't there, and the latter three where the
/// node is in the wrong state, which its flag tells.
pub fn nodes_are_due()
    ensures fates { FatesAreDue }
    ensures stops { StopsAreDue }
    ensures restarts { RestartsAreDue }
    ensures bootstraps { BootstrapsAreDue }
    ensures flags { FlagsTell }
{}

/// Lines that make a placement are refused, before a plan is tried, for just what their names and the limits refuse them for.
pub fn steps_are_due()
    ensures { StepsAreDue }
{}
