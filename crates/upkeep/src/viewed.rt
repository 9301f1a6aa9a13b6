//! That the rows of views are of their columns' types.

ghost use Rattle.std.specs.Prelude.{◌<◌, All, length};
ghost use Rattle.view_lang.specs.ConfigRules.{IsView};
ghost use Rattle.view_lang.specs.TableRules.{IsTable};
ghost use Rattle.upkeep.specs.Stores.{tables_in};
ghost use Rattle.upkeep.specs.ViewedRows.{IsViewed};

use row_keys::RowStore;
use view_lang::View;

/// The rows of a view are of the types of its columns. It does nothing: its contract is the theorem.
pub(crate) fn viewed_law(stores: &[RowStore], view: &View)
    requires view { IsView (tables_in stores.now) view.now }
    requires right { All IsTable (tables_in stores.now) }
    requires main { 0 < length stores.now }
    ensures { IsViewed stores.now view.now }
{
    stores[0].rows_law();
    if let Some(lookup) = view.lookup {
        stores[lookup.side + 1].rows_law();
    }
}
