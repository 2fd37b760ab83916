//! What an injector hands over.
use js_data::Event;

/// One thing that an injector hands over.
#[derive(Debug, Drop)]
pub enum Item {
    /// A good line's event.
    Offered(Event),
    /// A bad line, by its number; it is the last item.
    Bad(u32),
    /// A fault of reading; it is the last item.
    Failed,
    /// The end of the input; it is the last item.
    End,
}

/// Takes only what may move to another thread.
fn is_send<T: Send>(_value: &T) {}

/// An item may move to another thread.
pub fn moves_between_threads(item: &Item) {
    is_send(item);
}
