//! That a connection ends, and that its bytes decide where: each the contract of a function that does nothing.

ghost use Rattle.vc_http_talk.specs.Laws.{BytesDecide, EndsInTime, GoesOnBelow, OneEnd};

/// No more messages of a connection are answered than the limit.
pub fn ends_in_time()
    ensures { EndsInTime }
{}

/// Fewer are where the connection goes on behind them.
pub fn goes_on_below()
    ensures { GoesOnBelow }
{}

/// The bytes decide what is left of them behind so many messages, and whether the connection goes on.
pub fn bytes_decide()
    ensures { BytesDecide }
{}

/// They decide how many messages are all that is answered.
pub fn one_end()
    ensures { OneEnd }
{}
