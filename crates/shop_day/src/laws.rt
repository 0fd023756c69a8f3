//! Laws that tie the lines of a day to what the commands give out. Each function does nothing: its
//! contract is the law, of any keeper.

ghost use Rattle.shop_day.specs.Laws as law;
ghost use Rattle.shop_day.specs.Rounds as round;

use keepers::Keep;

/// What `order` gives out of the file of a controller of a shop is what a line of a day writes, and
/// the file is that of the controller as it is then.
pub fn order_is_line<K: Keep>()
    // Proved: What `order`, `take` and `show` write of the files of a shop's controllers, on any
    // honest keeper, is what a line of a day writes there; and the file holds its controller then.
    // By `take_is_line`, `show_is_line`.
    ensures { law.OrderIsLine K.is_honest K.held K.place }
{}

/// The same of `take`, of a message that was sent.
pub fn take_is_line<K: Keep>()
    ensures { law.TakeIsLine K.is_honest K.held K.place }
{}

/// The same of `show`.
pub fn show_is_line<K: Keep>()
    ensures { law.ShowIsLine K.is_honest K.held K.place }
{}

/// Where an order gives nothing out of the file of a controller, a line of a day gives up for the
/// same, and the file holds the controller as it was, or the text of it as it is then.
pub fn failed_order_is_line<K: Keep>()
    // Proved: Where an order or a message to the file of a shop's controller gives up, on any
    // honest keeper, a line of a day does for the same, and the file holds the controller as it
    // was, or as it is in the shop that the line leaves.
    // By `failed_take_is_line`, `not_loaded_is_line`.
    ensures { law.FailedOrderIsLine K.is_honest K.held K.place K.count K.save_fails }
{}

/// The same of a message that was sent.
pub fn failed_take_is_line<K: Keep>()
    ensures { law.FailedTakeIsLine K.is_honest K.held K.place K.count K.save_fails }
{}

/// The same where no controller is loaded: nothing is changed.
pub fn not_loaded_is_line<K: Keep>()
    ensures { law.NotLoadedIsLine K.is_honest K.held K.load_fails }
{}

/// What messages and orders give out that come to the file of a controller of a shop in a round of
/// a server, once that is saved behind the last, is what as many lines of a day write, in turn; and
/// the file is that of the controller as it is then.
pub fn round_is_lines<K: Keep>()
    // Proved: What a server gives out of messages that were sent and of orders to the file of a
    // shop's controller, once one save is made behind the last, is what as many lines of a day
    // write there, in turn, on any honest keeper; and the file holds the controller then.
    ensures { round.RoundIsLines K.is_honest K.held }
{}

/// Where a round of a server gives nothing out of the file of a controller of a shop, as many lines
/// of a day give up for the same, and the file holds the controller as it was, or the text of it as
/// it is then.
pub fn failed_round_is_lines<K: Keep>()
    // Proved: Where a server's one save behind messages that were sent and orders fails, or its
    // load, or memory runs out, on any honest keeper, as many lines of a day give up for the same,
    // and the file holds the controller as it was, or as it is in the shop that the lines leave.
    ensures { round.FailedRoundIsLines K.is_honest K.held K.place K.count K.load_fails
        K.save_fails }
{}
