//! Laws of the events alone, whatever their order.
ghost use Rattle.layer_board.specs.Orders.{OrdersAgree, StaysSound};

/// Whatever the order of the events, the least failed layer is the first whose verdict is true.
pub fn any_order()
    ensures { OrdersAgree }
{}

/// Whatever the order of the events, the board stays sound.
pub fn between_steps()
    ensures { StaysSound }
{}
